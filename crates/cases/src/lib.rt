// Worked cases: small nets, each with what the definitions make of its cables, computed by the checker; and tests of the
// public functions on some cables and on foreign tables.
#![tactic(auto)]

ghost use Rattle.cases.specs.Cases.{CasesHold};

#[cfg(test)]
mod tests;

// Every row of the table of cases holds.
pub fn cases_hold()
    ensures { CasesHold }
{}
