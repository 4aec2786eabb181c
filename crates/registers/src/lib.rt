// The register layer (000 §5): copies of registers on cards, kept alike over a context multicast channel.
#![tactic(auto)]
