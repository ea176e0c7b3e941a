// The lines of the hits of an accepted scene: each listed pair is met, a hit has its line, and the totals stand behind.

#![tactic(auto)]

ghost use Rattle.scene_seams.specs.Alone.{tabled};
ghost use Rattle.std.specs.Prelude.{◌+◌, ◌*◌, ◌≤◌, ◌<◌, ◌≡◌, ◌++◌, length};
ghost use Rattle.sequences.specs.Wrote.{Wrote};
ghost use Rattle.meaning.specs.Limits.{contact_limit, report_room};
ghost use Rattle.meaning.specs.Scene.{AcceptedWithin};
ghost use Rattle.meaning.specs.List.{pairs};
ghost use Rattle.meaning.specs.ContactLines.{contact_line, contact_lines, contact_total};
ghost use Rattle.list_entries.specs.Entries.{pair_of};
ghost use Rattle.list_words.specs.Listed.{ListStands};
ghost use Rattle.contact_entries.specs.Listed.{contacts_of};
ghost use Rattle.hit_report.specs.Sizes.{contacts_length};
ghost use Rattle.hit_report.specs.Lines.{one_hit, hits_of};
ghost use Rattle.hit_report.specs.Told.{SceneTold};

use meaning::{REPORT_ROOM, WholeContact};
use report_words::contact_lines::{contact_line, contact_total};
use report_words::lines::refused_line;

// How far the lines have come, and how many they are: a line for each hit.
#[derive(Clone, Copy, Debug, PartialEq, Eq)]
pub struct Lines {
    pub next: usize,
    pub hits: u64,
}

// One listed pair more. A pair that is not hit has no line.
fn tell_pair(entry: u32, contact: WholeContact, out: &mut [u8], lines: Lines) -> Lines
    requires { (lines.next + 150 ≤ length out.old) × (lines.hits < report_room) }
    ensures { Wrote out.old lines.next (contact_line (pair_of entry) contact) out.new result.next
        × (result.hits ≡ lines.hits + one_hit contact) }
{
    let at = lines.next;
    if let WholeContact::Hit(contact_numbers) = contact {
        let kind = list_entries::kind_of(entry);
        let first = list_entries::first_of(entry);
        let second = list_entries::second_of(entry);
        let next = contact_line(out, at, kind, first as u64, second as u64, contact_numbers);
        return Lines {
            next: next,
            hits: lines.hits + 1,
        };
    }
    lines
}

// The lines of the listed pairs, in order.
fn hit_lines(
    positions: &[i32],
    edges: &[u16],
    triangles: &[u16],
    stands: &[u16],
    list: &[u32],
    count: usize,
    out: &mut [u8],
) -> Lines
    requires { AcceptedWithin contact_limit (tabled positions.now edges.now triangles.now stands.now)
        × ListStands (tabled positions.now edges.now triangles.now stands.now) list.now
        × (count ≡ length (pairs (tabled positions.now edges.now triangles.now stands.now))) × (count ≤ report_room)
        × (length out.old ≡ contacts_length) }
    ensures { Wrote out.old 0
        (contact_lines (pairs (tabled positions.now edges.now triangles.now stands.now))
        (contacts_of (tabled positions.now edges.now triangles.now stands.now)
        (pairs (tabled positions.now edges.now triangles.now stands.now)))) out.new result.next × (result.next ≤ 47 * report_room)
        × (result.hits ≡ hits_of (contacts_of (tabled positions.now edges.now triangles.now stands.now)
        (pairs (tabled positions.now edges.now triangles.now stands.now)))) }
{
    let mut lines = Lines { next: 0, hits: 0 };
    for k in 0..count {
        let contact = contact_entries::entry_contact(positions, edges, triangles, stands, list, k);
        lines = tell_pair(list[k], contact, out, lines);
    }
    lines
}

// The lines, then the totals.
fn hits_report(
    positions: &[i32],
    edges: &[u16],
    triangles: &[u16],
    stands: &[u16],
    list: &[u32],
    count: usize,
    out: &mut [u8],
) -> usize
    requires { AcceptedWithin contact_limit (tabled positions.now edges.now triangles.now stands.now)
        × ListStands (tabled positions.now edges.now triangles.now stands.now) list.now
        × (count ≡ length (pairs (tabled positions.now edges.now triangles.now stands.now))) × (count ≤ report_room)
        × (length out.old ≡ contacts_length) }
    ensures { Wrote out.old 0
        (contact_lines (pairs (tabled positions.now edges.now triangles.now stands.now))
        (contacts_of (tabled positions.now edges.now triangles.now stands.now)
        (pairs (tabled positions.now edges.now triangles.now stands.now))) ++ contact_total
        (contacts_of (tabled positions.now edges.now triangles.now stands.now)
        (pairs (tabled positions.now edges.now triangles.now stands.now)))) out.new result }
{
    let lines = hit_lines(positions, edges, triangles, stands, list, count, out);
    contact_total(out, lines.next, count as u64, lines.hits)
}

// The contacts of a scene that is accepted and within the old range, its seams in the table: 7 is found before anything is written.
pub fn near_contacts(
    positions: &[i32],
    edges: &[u16],
    triangles: &[u16],
    stands: &[u16],
    out: &mut [u8],
) -> usize
    requires { AcceptedWithin contact_limit (tabled positions.now edges.now triangles.now stands.now)
        × (length out.old ≡ contacts_length) }
    ensures { SceneTold (tabled positions.now edges.now triangles.now stands.now) out.old out.new result }
{
    let mut list = [0u32; REPORT_ROOM];
    let mut tests = [0usize; 1];
    match list_pairs::accepted::list_accepted(
        positions,
        edges,
        triangles,
        stands,
        &mut list,
        REPORT_ROOM,
        &mut tests,
    ) {
        Ok(count) => hits_report(positions, edges, triangles, stands, &list, count, out),
        Err(refused) => refused_line(out, 0, 7, refused.carries as u64),
    }
}
