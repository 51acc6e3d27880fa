// What is asked of a search, and whether it may be.
ghost use Rattle.std.specs.Prelude.{◌≡◌, ◌≤◌, length};
ghost use Rattle.layout.specs.FrameBytes.{frame_at};
ghost use Rattle.layout.specs.TileBytes.{tile_at};
ghost use Rattle.search.specs.front.Ask.{flagged, paired, bounded, bounded_refs, askable, find_front};
ghost use Rattle.search.specs.front.Ask.{replacing_of, want_of, filling_of, global_of, dims_of, site_of};

use cells::block::{MvPair, RefPair};
use cells::cell::Ref;
use cells::pos::Pos4;
use cells::size::{Dims, dimensions};
use frame::extent::sizes::Sizes;
use layout::frame_bytes::{sizes_at, use_ref_frame_mvs_in, well_frame};
use layout::tile_bytes::{columns_at, rows_at};
use rows::setup::TileRange;
use rows::splats::splat::is_in;
use spatial::neighbours::want::Want;
use spatial::site::block::Site;
use vector::mv::Mv;

// The references, the block's size code, whether the point above right is decoded, the block's first
// row and column, the references' global vectors with whether their types are above translation,
// and the precision of vectors.
#[derive(Clone, Copy)]
pub struct Ask {
    pub refs: RefPair,
    pub bs: u8,
    pub decoded: u8,
    pub y: Pos4,
    pub x: Pos4,
    pub gmv: MvPair,
    pub first_above: u8,
    pub second_above: u8,
    pub integer: u8,
    pub hp: u8,
}

fn are_flags(a: Ask) -> bool
    ensures { result ≡ flagged a }
{
    a.decoded <= 1 && a.first_above <= 1 && a.second_above <= 1 && a.integer <= 1 && a.hp <= 1
}

// ( 0..7, NONE ) or ( 1..7, 1..7 ); with temporal search on, no reference 0.
fn are_paired(refs: RefPair, temporal: u8) -> bool
    ensures { result ≡ paired refs temporal }
{
    if refs.first.is_ref() {
        return refs.second.is_ref() || refs.second == Ref::NONE;
    }
    refs.first == Ref::INTRA && refs.second == Ref::NONE && temporal == 0
}

// A global vector that is used is held to ±16,383.
fn is_bounded(r: Ref, v: Mv) -> bool
    ensures { result ≡ bounded r v }
{
    !r.is_ref() || v.within(16383)
}

fn are_bounded(a: Ask) -> bool
    ensures { result ≡ bounded_refs a }
{
    is_bounded(a.refs.first, a.gmv.first) && is_bounded(a.refs.second, a.gmv.second)
}

// The block starts in its tile, and the tile ends in the frame.
fn is_askable(s: Sizes, col: TileRange, row: TileRange, temporal: u8, a: Ask) -> bool
    ensures { result ≡ askable s col row temporal a }
{
    a.bs <= 21
        && is_in(s.iw4, col, a.x)
        && is_in(s.ih4, row, a.y)
        && are_paired(a.refs, temporal)
        && are_bounded(a)
}

// By the lengths of the lent buffers, before any record or cell is read.
pub fn find_front(frame: &[u8], tile: &[u8], a: Ask, nrecs: usize, nproj: usize) -> u8
    requires { (109 ≤ length frame.now) × (168 ≤ length tile.now) }
    ensures { result ≡ find_front (frame_at frame.now) (tile_at tile.now) a nrecs nproj }
{
    if !well_frame(frame) || !are_flags(a) {
        return 1;
    }
    let s = sizes_at(frame);
    let temporal = use_ref_frame_mvs_in(frame);
    if !is_askable(s, columns_at(tile), rows_at(tile), temporal, a) {
        return 10;
    }
    if nrecs < 12 * s.records() {
        return 4;
    }
    if temporal == 0 {
        return 0;
    }
    if nproj < 5 * s.projected_cells() {
        4
    } else {
        0
    }
}

// The global vector in place of a neighbour's own, where the reference's type is above translation.
fn replacing(r: Ref, above: u8, v: Mv) -> Mv
    ensures { result ≡ replacing_of r above v }
{
    if r.is_ref() && above == 1 {
        v
    } else {
        Mv::INVALID
    }
}

pub fn want_of(a: Ask) -> Want
    ensures { result ≡ want_of a }
{
    let refs = a.refs;
    let gmv = a.gmv;
    let first = replacing(refs.first, a.first_above, gmv.first);
    let second = replacing(refs.second, a.second_above, gmv.second);
    Want {
        refs,
        gmv: MvPair { first, second },
    }
}

// The global vector that fills up: ZERO without a reference.
fn filling(r: Ref, v: Mv) -> Mv
    ensures { result ≡ filling_of r v }
{
    if r.is_ref() { v } else { Mv::ZERO }
}

pub fn global_of(a: Ask) -> MvPair
    ensures { result ≡ global_of a }
{
    let refs = a.refs;
    let gmv = a.gmv;
    let first = filling(refs.first, gmv.first);
    let second = filling(refs.second, gmv.second);
    MvPair { first, second }
}

fn dims_of(code: u8) -> Dims
    ensures { result ≡ dims_of code }
{
    match dimensions(code) {
        Some(d) => d,
        None => Dims {
            w: Pos4(0),
            h: Pos4(0),
        },
    }
}

// For a size code above 21, which is refused, a block without sides stands in.
pub fn site_of(tile: &[u8], a: Ask) -> Site
    requires { 168 ≤ length tile.now }
    ensures { result ≡ site_of (tile_at tile.now) a }
{
    let col = columns_at(tile);
    let row = rows_at(tile);
    let d = dims_of(a.bs);
    let y = a.y;
    let x = a.x;
    let w = d.w;
    let h = d.h;
    Site {
        y,
        x,
        w,
        h,
        col,
        row,
    }
}
