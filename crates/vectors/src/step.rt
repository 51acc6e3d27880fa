// A step of a batch. What it reads lies on the desk; the batch and what it writes are lent apart.
use crate::desk::{Desk, Role, part};
use jaskkovir::batches::jaskkovir_step;

// A step of job k.
pub(crate) fn step(
    desk: &Desk,
    k: usize,
    jobs: &mut [u8],
    proj: &mut [u8],
    saved: &mut [u8],
) -> u8 {
    jaskkovir_step(
        part(desk, Role::Frame),
        part(desk, Role::Present),
        jobs,
        k,
        part(desk, Role::Field0),
        part(desk, Role::Field1),
        part(desk, Role::Field2),
        part(desk, Role::Field3),
        part(desk, Role::Field4),
        part(desk, Role::Field5),
        part(desk, Role::Field6),
        part(desk, Role::Records),
        proj,
        saved,
    )
}
