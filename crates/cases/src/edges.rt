// The edges of the plain engine, and its refusals.
ghost use Rattle.cases.specs.Edges.{EdgesHold, edges};
ghost use Rattle.cases.specs.Refusals.{refusal_cases};
ghost use Rattle.cases.specs.Unfit.{UnfitTold};

// Every edge of the two tables comes to what it should.
pub fn edges_hold()
    ensures edges { EdgesHold edges }
    ensures refusals { EdgesHold refusal_cases }
{}

// Parts that make no engine are refused, and nothing else is looked at before them.
pub fn unfit_parts_are_told()
    ensures { UnfitTold }
{}
