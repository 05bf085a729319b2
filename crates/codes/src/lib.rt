// Theory only: DFS codes over any label order: reading, extensions, the least code and its prefixes. No program code.
#![tactic(auto)]
