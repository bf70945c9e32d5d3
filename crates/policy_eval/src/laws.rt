//! What holds of all askings of limiters.
ghost use Rattle.policy_eval.specs.Amounts.{AmountsAreOfTheLimits};
ghost use Rattle.policy_eval.specs.Laws.{AnswersByTheNode, AnswersAreByTheNode, AskedNodesRise, DecisionsKeepTheCounts};

/// A `Budgets` that stands for the askings of some decisions gives the next one the answers, and so the verdict, that
/// these askings give, and then stands for the askings of that decision, too.
pub fn decisions_keep_the_counts()
    ensures { DecisionsKeepTheCounts }
{}

/// A decision asks limiter nodes in the order of their numbers, each at most once.
pub fn asked_nodes_rise()
    ensures { AskedNodesRise }
{}

/// To give the askings a list of answers is to give each node an answer: either way the policies decide alike.
pub fn answers_are_by_the_node()
    ensures given { AnswersByTheNode }
    ensures back { AnswersAreByTheNode }
{}

/// What a decision asks a limiter node for is what the node's own limit is of: the spans, or their bytes.
pub fn amounts_are_of_the_limits()
    ensures { AmountsAreOfTheLimits }
{}
