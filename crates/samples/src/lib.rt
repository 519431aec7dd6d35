#![tactic(auto)]

// The sample events of document 01, stated and proved over the three layers together. There is no code here.
