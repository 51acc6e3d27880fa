// The extra search, for a stack of fewer than two candidates: the neighbours' vectors whatever their
// references, turned round where these lie on the other side in time.
pub mod lists;
pub mod pool;
pub mod walk;
