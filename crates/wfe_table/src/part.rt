// The steps by which a seat leaves.
ghost use Rattle.std.specs.Prelude.{◌≡◌, ◌≢◌, ◌+◌, None, false, slice_set, true};
ghost use Rattle.wfe_core.specs.Calls.{HideSpan, Keeping, MarkLeft, Parting, Releases, Runs, Works};
ghost use Rattle.wfe_core.specs.Phases.Base.{Clear};
ghost use Rattle.wfe_core.specs.Keep.{parting, parting_from};
ghost use Rattle.wfe_core.specs.Locals.{begun_post};
ghost use Rattle.wfe_core.specs.Rounds.{scheme_of};
ghost use Rattle.wfe_core.specs.Valid.{IsValid};
ghost use Rattle.wfe_core.specs.defs.declared.call.Call.TheVariants as calls;
ghost use Rattle.wfe_core.specs.words.Place.Place.{PlaceOf};
ghost use Rattle.wfe_core.specs.words.Place.{number};
ghost use Rattle.wfe_core.specs.words.Schemes.{publishes_rows};
ghost use Rattle.wfe_drive_rule.specs.Handles.{IsBare, IsIdle, IsResting, IsSeated, IsSized};
ghost use Rattle.wfe_drive_rule.specs.Views.{Handle as ViewHandle, own, standing};
ghost use Rattle.wfe_table.specs.Parting.{Departed, Parted};

use wfe_core::{Call, Op, Post, RetireList, SchemeKind, shown_word};
use wfe_drive_cells::spot_at;
use wfe_drive_rule::{Handle, Ledger, begin, hand_list, step};

// Lets go of what stands at the seat's indexes from 2 on, one after the other, each in one step. It answers
// whether nothing stood there.
fn clear_rows(ledger: &Ledger, handle: &mut Handle, seat: u32, post: &Post) -> bool
    requires ids { handle.old.table_id ≡ ledger.now.table_id }
    requires sized { IsSized ledger.now.table_id ledger.now.key }
    requires valid { IsValid post.now }
    requires parts { Parted ledger.now.key seat post.now handle.old.me (parting_from 2 (standing handle.old.me).post) true handle.old.me }
    requires rows { (standing handle.old.me).post.standing ≡ post.now.standing }
    ensures ids { handle.new.table_id ≡ handle.old.table_id }
    ensures parted { Parted ledger.now.key seat post.now handle.old.me (Works (Keeping MarkLeft)) result handle.new.me }
{
    let rows = has_rows(post);
    let mut first = true;
    for index in 2..8u32 {
        if post.standing[index as usize].is_some() {
            clear_row(ledger, handle, seat, post, index, rows, first);
            first = false;
        }
    }
    first
}

// Whether index words publish rows.
fn has_rows(post: &Post) -> bool
    ensures { result ≡ publishes_rows (scheme_of post.now) }
{
    matches!(post.layout.config().scheme, SchemeKind::Hp)
}

// One such step.
fn clear_row(
    ledger: &Ledger,
    handle: &mut Handle,
    seat: u32,
    post: &Post,
    index: u32,
    rows: bool,
    first: bool,
)
    requires ids { handle.old.table_id ≡ ledger.now.table_id }
    requires sized { IsSized ledger.now.table_id ledger.now.key }
    requires valid { IsValid post.now }
    requires parted { (old : ViewHandle) × Parted ledger.now.key seat post.now old (Runs (Releases (Parting index)) (Clear rows index)) first handle.old.me }
    ensures ids { handle.new.table_id ≡ handle.old.table_id }
    ensures parted { (old : ViewHandle) → Parted ledger.now.key seat post.now old (Runs (Releases (Parting index)) (Clear rows index)) first handle.old.me
        → Parted ledger.now.key seat post.now old (parting_from (index + 1) (standing handle.new.me).post) false handle.new.me }
    ensures stands { (standing handle.new.me).post.standing ≡ slice_set (standing handle.old.me).post.standing index None }
{
    let word = post.layout.index(post.seat, index);
    let op = Op::Store {
        word,
        value: shown_word(rows, post, index, 0),
    };
    let spot = spot_at(&post.layout, word);
    step(ledger, handle, seat, op, spot, first);
}

// Lets go of all that stands with the seat's interval, in one step.
fn hide_span(ledger: &Ledger, handle: &mut Handle, seat: u32, post: &Post)
    requires ids { handle.old.table_id ≡ ledger.now.table_id }
    requires sized { IsSized ledger.now.table_id ledger.now.key }
    requires valid { IsValid post.now }
    requires parted { Parted ledger.now.key seat post.now handle.old.me (Works (Keeping HideSpan)) true handle.old.me }
    ensures ids { handle.new.table_id ≡ handle.old.table_id }
    ensures parted { Parted ledger.now.key seat post.now handle.old.me (Works (Keeping MarkLeft)) false handle.new.me }
{
    let word = post.layout.interval(post.seat);
    let op = Op::Store { word, value: 0 };
    let spot = spot_at(&post.layout, word);
    step(ledger, handle, seat, op, spot, true);
}

// Lets go of what stands, whichever the scheme. It answers whether nothing did.
fn part(ledger: &Ledger, handle: &mut Handle, seat: u32, post: &Post) -> bool
    requires ids { handle.old.table_id ≡ ledger.now.table_id }
    requires sized { IsSized ledger.now.table_id ledger.now.key }
    requires valid { IsValid post.now }
    requires post { (standing handle.old.me).post ≡ begun_post post.now }
    requires parted { Parted ledger.now.key seat post.now handle.old.me (parting (begun_post post.now)) true handle.old.me }
    ensures ids { handle.new.table_id ≡ handle.old.table_id }
    ensures parted { Parted ledger.now.key seat post.now handle.old.me (Works (Keeping MarkLeft)) result handle.new.me }
{
    match post.layout.config().scheme {
        SchemeKind::Ibr => match post.span {
            None => true,
            Some(_) => {
                hide_span(ledger, handle, seat, post);
                false
            }
        },
        _ => clear_rows(ledger, handle, seat, post),
    }
}

// All steps of a leave: the seat lets go of what stands, and its list goes into its slot.
pub(crate) fn leave_on(
    ledger: &Ledger,
    handle: &mut Handle,
    seat: u32,
    word: u32,
    post: &Post,
    list: RetireList,
)
    requires ids { handle.old.table_id ≡ ledger.now.table_id }
    requires sized { IsSized ledger.now.table_id ledger.now.key }
    requires seated { IsSeated ledger.now.key seat handle.old.me }
    requires resting { IsResting handle.old.me }
    requires there { (own handle.old.me.0).local.call ≢ calls.Leave }
    requires post { (own handle.old.me.0).local.post ≡ post.now }
    requires valid { IsValid post.now }
    requires list { list ≡ record { lives = (own handle.old.me.0).local.desk.list; slots = ledger.now.key.config.slots } }
    requires word { word ≡ number ledger.now.key (PlaceOf post.now.seat) }
    ensures ids { handle.new.table_id ≡ handle.old.table_id }
    ensures bare { IsBare ledger.now.key handle.new.me }
    ensures idle { IsIdle (own handle.new.me.0) }
    ensures departed { Departed (own handle.old.me.0) handle.new.me }
{
    begin(ledger, handle, seat, Call::Leave);
    let first = part(ledger, handle, seat, post);
    let spot = spot_at(&post.layout, word);
    hand_list(ledger, handle, seat, word, spot, list, first);
}
