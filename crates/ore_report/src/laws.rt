//! What the chain rule allows, as a contract.

ghost use Rattle.ore_report.specs.ChainRule.{chain_allows, chain_allows_spent};
ghost use Rattle.ore_report.specs.RuleLaw.{AllowsOneChoice, AllowsSomeChoice, AllowsLawful, AllowsSpentAtTreatment, AllowsByPairs, IsStrictRule};

/// At each state the rule allows one choice, while a pair may be treated, and it is lawful; the budget may be spent
/// exactly where that choice is a treatment. Both depend on which pairs are listed, and not on their order.
/// So of runs it is a strict rule: a course has one report by it, or one answer.
pub fn law_rule()
    ensures one { AllowsOneChoice chain_allows }
    ensures some { AllowsSomeChoice chain_allows }
    ensures lawful { AllowsLawful chain_allows }
    ensures spent { AllowsSpentAtTreatment chain_allows chain_allows_spent }
    ensures pairs { AllowsByPairs chain_allows chain_allows_spent }
    ensures strict { IsStrictRule chain_allows chain_allows_spent }
{}
