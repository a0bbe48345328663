// No code: the starred samples of the rules (section 21), settled by one claim in specs/LawsSamples.antt.
#![tactic(auto)]
