ghost use Rattle.sf_bicomplex.specs.TensorLaws.{HasComplexesOfLists, HasComplexesOfResolutions, HasTensorBicomplexes, HasTensorsOfComplexes, HasTensorsWithModules};

/// The tensor product of a complex of free modules with a complex of presented modules is a bicomplex; so is that of two
/// complexes of free modules, and that of one with a presented module. Resolutions are complexes of free modules.
pub fn tensors_are_bicomplexes()
    ensures modules { HasTensorBicomplexes }
    ensures complexes { HasTensorsOfComplexes }
    ensures module_alone { HasTensorsWithModules }
    ensures lists { HasComplexesOfLists }
    ensures resolutions { HasComplexesOfResolutions }
{}
