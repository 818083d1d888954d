//! What a run of a conference script is, as definitions: the members, the distributor, the table of what was sent, what each line
//! does, and the report. There is no code here.
#![tactic(auto)]
