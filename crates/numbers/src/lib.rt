// Laws of numbers that the toolchain's library lacks, in proofs/, and the exclusive or of many, in specs/: theory alone.
#![tactic(auto)]
