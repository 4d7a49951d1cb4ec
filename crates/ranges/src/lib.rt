// How great numbers may be, and how great the sums and products over them become, as theorems (request M-103).
#![tactic(auto)]
