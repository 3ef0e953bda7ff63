// The causes of refusal of host names, and the facts from which their claims follow. No code: theorems on `host_name`.
#![tactic(auto)]
