// What codes mean, what is written of them, and minimal form (RULES, Parameter codes, Minimal form, Message reader and writer), with
// their laws: what is written is read back, and what is read can be written. There is no operation here.
#![tactic(auto)]
