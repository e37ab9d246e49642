// Parts that go through rounds together by messages. There is no code here: see specs/.
#![tactic(auto)]
