ghost use Rattle.sf_presented.specs.ResidueField.{IsMapOntoResidueField, RefusesMapIntoRing, HasIdealAsKernel, RefusesFreeKernel, RefusesKernelInRing, HasResidueFieldAsImage, HasNoCokernel, HasResidueRelations, HasCoordinatesOfX, RefusesXAsCoordinates};

/// The map 1 from the ring in two variables to its residue field: its kernel, its image, its cokernel, and coordinates.
pub fn residue_field()
    ensures map { IsMapOntoResidueField }
    ensures not_map { RefusesMapIntoRing }
    ensures kernel { HasIdealAsKernel }
    ensures not_free { RefusesFreeKernel }
    ensures not_kernel { RefusesKernelInRing }
    ensures image { HasResidueFieldAsImage }
    ensures cokernel { HasNoCokernel }
    ensures relations { HasResidueRelations }
    ensures coordinates { HasCoordinatesOfX }
    ensures not_coordinates { RefusesXAsCoordinates }
{}
