// What is claimed of the files that are written from charts: claims alone.
#![tactic(auto)]
