// Views of a group of boards: the shares of a view, the ranks of its members, and the views of a row one after another.
// Rules: docs/RULES.md, "Views, shares and ranks". Words of the contracts: specs/.
#![tactic(auto)]

pub mod history;
pub mod laws;
pub mod shares;
pub mod view;
