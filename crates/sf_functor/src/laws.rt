//! What holds of Hom and tensor, and what the plan of a tensor product answers, each as the contract of a function that does nothing.

ghost use Rattle.sf_functor.specs.FunctorLaws.{AddsDegrees, HomsComplexes, HomsIdentities, HomsMaps, HomsProducts, HomsRing, RepeatsRelations, SpreadsEntries, SpreadsTransposedEntries, SubtractsDegrees, TensorsComplexes, TensorsIdentities, TensorsMaps, TensorsProducts, TensorsRing};
ghost use Rattle.sf_functor.specs.TensorLaws.{AnswersCokernelOfRelations, AnswersSoundTensor, AnswersTensor, AnswersTensorOfRing, HasTensorRelations, SpansTensorRelations};

/// Generators are pairs, with sums and differences of degrees; relations stand once for each generator of the free module; and the
/// entries of a map go to pairs with the same second generator.
pub fn free_functors_have_pairs()
    ensures tensor_degrees { AddsDegrees }
    ensures hom_degrees { SubtractsDegrees }
    ensures relations { RepeatsRelations }
    ensures tensor_entries { SpreadsEntries }
    ensures hom_entries { SpreadsTransposedEntries }
{}

/// What a map of free modules gives is a map of presented modules; identities give identities, and products give products.
pub fn functors_keep_maps()
    ensures tensor_maps { TensorsMaps }
    ensures hom_maps { HomsMaps }
    ensures tensor_identities { TensorsIdentities }
    ensures hom_identities { HomsIdentities }
    ensures tensor_products { TensorsProducts }
    ensures hom_products { HomsProducts }
{}

/// A complex of free modules gives a complex of presented modules.
pub fn functors_keep_complexes()
    ensures tensor { TensorsComplexes }
    ensures hom { HomsComplexes }
{}

/// The ring may be left out.
pub fn the_ring_is_left_out()
    ensures tensor { TensorsRing }
    ensures hom { HomsRing }
    ensures plan { AnswersTensorOfRing }
{}

/// The plan of a tensor product answers its one presentation, matrices over the ring, whose degrees exceed those of small matrices by
/// at most the limit. It is the cokernel of a map of copies of the second module.
pub fn tensors_are_answered()
    ensures tensor { AnswersTensor }
    ensures sound { AnswersSoundTensor }
    ensures cokernel { AnswersCokernelOfRelations }
{}

/// The relations of a tensor product span the products of two vectors one of which is a relation, and each is such a product.
pub fn tensors_are_of_vectors()
    ensures spans { SpansTensorRelations }
    ensures products { HasTensorRelations }
{}
