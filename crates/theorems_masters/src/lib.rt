// Theorems only: two frames whose cells don't meet may come in either order.
#![tactic(auto)]
