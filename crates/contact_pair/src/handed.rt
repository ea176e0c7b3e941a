// A contact as it is handed out: k itself, and beside it the time and the shares, each turned into an f64 and divided by 2^20.

ghost use Rattle.std.specs.Prelude.{◌≡◌};
ghost use Rattle.cutting.specs.Floats.{handed_out};
ghost use Rattle.meaning.specs.WholeContacts.{contact_of};
ghost use Rattle.meaning.specs.declared.WholeContact.TheVariants.{Hit};

use cutting::handed_out;
use meaning::{Contact, ContactNumbers, EdgeContact, Kind, PointContact, WholeContact};

fn point_contact(m: ContactNumbers) -> PointContact
    ensures { result ≡ record {
      time = handed_out m.k;
      low = handed_out m.first;
      middle = handed_out m.second;
      high = handed_out m.third;
    } }
{
    let time = handed_out(m.k);
    let low = handed_out(m.first);
    let middle = handed_out(m.second);
    let high = handed_out(m.third);
    PointContact {
        time,
        low,
        middle,
        high,
    }
}

fn edge_contact(m: ContactNumbers) -> EdgeContact
    ensures { result ≡ record {
      time = handed_out m.k;
      first = handed_out m.first;
      second = handed_out m.second;
    } }
{
    let time = handed_out(m.k);
    let first = handed_out(m.first);
    let second = handed_out(m.second);
    EdgeContact {
        time,
        first,
        second,
    }
}

fn hit_contact(kind: Kind, m: ContactNumbers) -> Contact
    ensures { result ≡ contact_of kind (Hit m) }
{
    match kind {
        Kind::PointTriangle => Contact::PointHit(m.piece, m.k, point_contact(m)),
        Kind::EdgeEdge => Contact::EdgeHit(m.piece, m.k, edge_contact(m)),
    }
}

// A contact as Rattle's callers have it, with f64s for time and shares: the whole numbers are the answer, and these are made from them.
pub fn contact_of(kind: Kind, contact: WholeContact) -> Contact
    ensures { result ≡ contact_of kind contact }
{
    match contact {
        WholeContact::Hit(contact_numbers) => hit_contact(kind, contact_numbers),
        WholeContact::Miss => Contact::Miss,
        WholeContact::Touch => Contact::Touch,
        WholeContact::Apart => Contact::Apart,
    }
}
