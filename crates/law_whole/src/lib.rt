// All three demands as the contract of one function: the intake, as a caller may rely on it.
#![tactic(auto)]

ghost use Rattle.law_whole.specs.Whole.{AllDemands};

// Takes a text in. What is promised follows from the contract of the intake alone, by the laws of the demands.
pub fn take_in(text: &[u8], table: &mut [u64]) -> intake::Answer
    ensures { AllDemands text.now table.old result table.new }
{
    intake::intake(text, table)
}
