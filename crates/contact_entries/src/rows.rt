// The five numbers of a contact in a lent buffer: piece, k and three shares. Nothing but a hit changes what stands there.

ghost use Rattle.std.specs.Prelude.{◌+◌, ◌≤◌, ◌<◌, ◌≡◌, length, take, drop};
ghost use Rattle.sequences.specs.Wrote.{Wrote};
ghost use Rattle.meaning.specs.WholeContacts.{word_of, row_of, row_left};
ghost use Rattle.contact_entries.specs.Rows.{SmallContact};

use meaning::{ContactNumbers, Settled, WholeContact};

// The word of a contact.
pub fn settled_of(contact: WholeContact) -> Settled
    ensures { result ≡ word_of contact }
{
    match contact {
        WholeContact::Hit(_) => Settled::Hit,
        WholeContact::Miss => Settled::Miss,
        WholeContact::Touch => Settled::Touch,
        WholeContact::Apart => Settled::Apart,
    }
}

fn put_row(contacts: &mut [u32], at: usize, m: ContactNumbers)
    requires { (at + 5 ≤ length contacts.old) × (m.piece < 4) }
    ensures { Wrote contacts.old at (row_of m) contacts.new (at + 5) }
{
    contacts[at] = m.piece as u32;
    contacts[at + 1] = m.k;
    contacts[at + 2] = m.first;
    contacts[at + 3] = m.second;
    contacts[at + 4] = m.third;
}

// The row of a pair's contact from a place on. Where the word is no hit the five numbers stay as they were, since a caller looks at none of them then.
pub fn put_contact_row(contacts: &mut [u32], at: usize, contact: WholeContact)
    requires { (at + 5 ≤ length contacts.old) × SmallContact contact }
    ensures { Wrote contacts.old at (row_left contact (take 5 (drop at contacts.old)))
        contacts.new (at + 5) }
{
    if let WholeContact::Hit(contact_numbers) = contact {
        put_row(contacts, at, contact_numbers);
    }
}
