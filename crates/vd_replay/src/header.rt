//! Finding the header of a store.

ghost use Rattle.std.specs.Prelude.{◌≡◌, ◌≤◌, [], length, IfOk, IfErr};
ghost use Rattle.vd_device.specs.Quiet.{IsReady, OnlyReads, AddsFlush, IsStoreFault};
ghost use Rattle.vd_format.specs.Headers.{IsValid};
ghost use Rattle.vd_format.specs.Layouts.{store_need};
ghost use Rattle.vd_replay.specs.Headers.{first_changed};
ghost use Rattle.vd_replay.specs.Finding.{Agrees, IsWrong, Found, NotFound, IsHeaderSearchError};

use crate::error::OpenError;
use vd_device::{Store, flush_only, read_only, sectors_at_rest};
use vd_format::{Header, layout_of, read_header};
use vd_law::entry::Sector;

/// The first of the fields that never change which differs: the version, as field 9, then the fields 1 to 5.
#[tactic(auto, unfolding(crate::specs::Headers::first_changed))]
fn first_change(kept: &Header, now: &Header) -> Option<u8>
    ensures { result ≡ first_changed kept.now now.now }
{
    if now.version != kept.version {
        return Some(9);
    }
    if now.block != kept.block {
        return Some(1);
    }
    if now.chunk != kept.chunk {
        return Some(2);
    }
    if now.size != kept.size {
        return Some(3);
    }
    if now.storage != kept.storage {
        return Some(4);
    }
    if now.slots != kept.slots {
        return Some(5);
    }
    None
}

/// The header agrees with the kept one, if there is one, and its layout needs no more than `have` sectors.
fn judge(header: Header, kept: Option<Header>, have: u64) -> Result<Header, OpenError>
    requires { IsValid header }
    ensures same { IfOk result (λ h. h ≡ header) }
    ensures agrees { IfOk result (λ h. Agrees kept h) }
    ensures room { IfOk result (λ h. store_need h ≤ have) }
    ensures wrong { IfErr result (IsWrong kept header have) }
{
    if let Some(kept) = kept {
        if let Some(field) = first_change(&kept, &header) {
            return Err(OpenError::Changed { field });
        }
    }
    let need = layout_of(&header).need;
    if have < need {
        return Err(OpenError::TooSmall { need, have });
    }
    Ok(header)
}

/// The header of the store, which is flushed before. A header that was kept is one from which no field that never changes may
/// differ.
pub fn find_header<S: Store>(store: &mut S, kept: Option<Header>) -> Result<Header, OpenError>
    requires idle { S.flight store.old [] }
    ensures errors { IfErr result (IsHeaderSearchError (IsStoreFault S.Store store.old store.new)) }
    ensures quiet { OnlyReads S.Store store.old store.new }
    ensures ready { IfOk result (λ h. IsReady S.Store store.new) }
    ensures valid { IfOk result IsValid }
    ensures agrees { IfOk result (Agrees kept) }
    ensures room { IfOk result (λ h. store_need h ≤ S.sectors store.new) }
    ensures flushed { IfOk result (λ h. S.tells store.new → AddsFlush (S.disk store.old) (S.disk store.new)) }
    ensures found { IfOk result (λ h. S.tells store.new → Found (S.disk store.new).held h) }
    ensures not_found { IfErr result (λ e. S.tells store.new → NotFound kept (S.disk store.new).held e) }
{
    let have = sectors_at_rest(store);
    if have == 0 {
        return Err(OpenError::TooSmall { need: 1, have: 0 });
    }
    // Flushed first: what a crash could still lose must be neither shown nor built on.
    if let Err(ticket) = flush_only(store) {
        return Err(OpenError::Store(ticket));
    }
    let mut first = [Sector::filled(0)];
    if let Err(ticket) = read_only(store, 0, &mut first) {
        return Err(OpenError::Store(ticket));
    }
    // For what its clause says alone: a store that tells records.
    let _telling = store.in_flight();
    match read_header(&first[0]) {
        Ok(header) => judge(header, kept, have),
        Err(error) => Err(OpenError::Header(error)),
    }
}
