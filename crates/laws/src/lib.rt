// The theorems about the definitions of `layout` (proofs/); nothing here runs, and nothing but `layout` is relied on.
//
// Promised: a sheet is accepted exactly when it keeps the layout, and is read as the layout says (Exact); the writer takes exactly the
// tables of such sheets (Exact); a setting changes an answer only to TOO NEW at the first later feature (Years), and reader and writer
// agree on the years a sheet needs (Newest); both round trips, uncut texts, and later years (Again); the sizes that code relies on
// (Bounds); texts turned there and back (Codings); what an index is and selects (Index); how many headers a hop looks at, what it finds and what its
// answer rests on (Hop); and document 01's marked cases (Marked), with further cases for each refusal at its place (Cases).
#![tactic(auto)]
