ghost use Rattle.sf_presented.specs.CoordinateLaws.{HasCoordinates, HasOneListOfCoordinates, HasCoordinatesOfLifts, HasCoordinatesInKernel, HasCoordinatesInImage, HasCoordinatesInCokernel, HasCoordinatesInHomology, HasDescription, HasOneDescription};

/// Modulo a prime the vectors of the span of generators and base, and no others, have coordinates; each has one list of them, the first
/// block of its lift.
pub fn vectors_have_coordinates()
    ensures exist { HasCoordinates }
    ensures unique { HasOneListOfCoordinates }
    ensures lifts { HasCoordinatesOfLifts }
{}

/// Modulo a prime the vectors of which kernels, images, cokernels and homology are made have coordinates in their generators.
pub fn presentations_have_coordinates()
    ensures kernel { HasCoordinatesInKernel }
    ensures image { HasCoordinatesInImage }
    ensures cokernel { HasCoordinatesInCokernel }
    ensures homology { HasCoordinatesInHomology }
{}

/// Modulo a prime vectors of the span of generators and base have one matrix of coordinates.
pub fn vectors_have_descriptions()
    ensures exist { HasDescription }
    ensures unique { HasOneDescription }
{}
