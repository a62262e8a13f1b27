//! What holds of queues of pairs, each as the contract of a function that does nothing.

ghost use Rattle.sf_pairs.specs.Queue.{HasOneLeastDegree, TakesOnePair};

/// A queue has at most one least degree.
pub fn least_degrees()
    ensures { HasOneLeastDegree }
{}

/// What is taken of a queue, and what it leaves, is determined by the number of the pair.
pub fn taken_pairs()
    ensures { TakesOnePair }
{}
