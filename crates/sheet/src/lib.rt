// 01's sheet as one theorem: specs/Sheet.antt. There is nothing to run here.
#![tactic(auto)]
