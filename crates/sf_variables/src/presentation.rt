ghost use Rattle.sf_variables.specs.PresentationLaws.{HasHomologyInVariables, HasKernelInVariables, HasImageInVariables, HasCokernelInVariables, HasStepsInVariables};

/// Presentations and resolutions of what is over n variables are over n variables.
pub fn presentations_keep_to_variables()
    ensures homology { HasHomologyInVariables }
    ensures kernel { HasKernelInVariables }
    ensures image { HasImageInVariables }
    ensures cokernel { HasCokernelInVariables }
    ensures resolution { HasStepsInVariables }
{}
