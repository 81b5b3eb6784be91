//! What the requests of programs settle to, each the contract of a function that does nothing.
ghost use Rattle.px_verdict.specs.Verdict.{IsDelete, InsertsFresh};
ghost use Rattle.px_verdict.specs.declared.verdict.TheConstants.{DELETE, INSERT_FRESH};

/// `DELETE` is valid, and removes.
pub fn delete_removes()
    ensures { IsDelete DELETE }
{}

/// `INSERT_FRESH` is valid, leaves a vertex that is there, and else sets the fresh one.
pub fn insert_makes_fresh()
    ensures { InsertsFresh INSERT_FRESH }
{}
