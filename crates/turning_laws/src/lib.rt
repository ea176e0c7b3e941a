// A scene played backwards: what stays, in specs/ and proofs/. No code stands here; the call that turns a scene round stands in `turning`.

#![tactic(auto)]
