//! What holds of every store. A function with an empty body does nothing, and its contract is the law.
ghost use Rattle.zarrs_meaning.specs.Laws.{WholePathsMeanTheSame};

/// A path that is not bad in a store whose numbers have to be whole means the same where any number may stand.
#[tactic(auto, using(crate::proofs::MoreMeanings::whole_paths_mean_the_same))]
pub fn whole_paths_mean_the_same()
    ensures { WholePathsMeanTheSame }
{}
