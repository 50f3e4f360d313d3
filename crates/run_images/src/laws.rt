ghost use Rattle.run_images.specs.Laws.{FaultsAreNumbered};

/// The demands on an image have the numbers 1 to 24. It does nothing when it is called.
pub fn faults_are_numbered()
    ensures { FaultsAreNumbered }
{}
