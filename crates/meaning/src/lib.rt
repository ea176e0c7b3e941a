// The types that every crate of the house shares. What they mean stands in specs/.

#![tactic(auto)]

ghost use Rattle.std.specs.Prelude.{◌≡◌};
ghost use Rattle.meaning.specs.Refusals.{carrying};

// The sizes of document 01. specs/Limits.antt has the same numbers for promises and proofs.
pub const COORDINATE_LIMIT: i32 = 524287;

// The range that coordinates had at first, in which contacts are given.
pub const CONTACT_LIMIT: i32 = 262143;

pub const VERTEX_LIMIT: usize = 512;

pub const EDGE_LIMIT: usize = 1024;

pub const TRIANGLE_LIMIT: usize = 512;

pub const SEAM_LIMIT: usize = 512;

// A mesh has at most so many parts of each kind.
pub const PART_LIMIT: usize = 1073741824;

pub const TEXT_LIMIT: usize = 32768;
// the bytes that a program reads into: one more than a text may have, so that a full buffer decides refusal 8
pub const READ_BYTES: usize = TEXT_LIMIT + 1;

pub const DIGIT_LIMIT: usize = 9;

// The numbers of the largest scene.
pub const POSITION_NUMBERS: usize = 6 * VERTEX_LIMIT;

pub const EDGE_NUMBERS: usize = 2 * EDGE_LIMIT;

pub const TRIANGLE_NUMBERS: usize = 3 * TRIANGLE_LIMIT;

pub const SEAM_NUMBERS: usize = 2 * SEAM_LIMIT;

// The boxes of the largest scene: six numbers for each part that it can have.
pub const BOX_NUMBERS: usize = 6 * (VERTEX_LIMIT + EDGE_LIMIT + TRIANGLE_LIMIT);

// The pairs that a report has room for, and the bytes that hold any report.
pub const REPORT_ROOM: usize = 3072;

pub const REPORT_BYTES: usize = 65536;

// The numbers of a contact in a lent buffer, and the bytes that hold the lines of any contacts.
pub const ROW_NUMBERS: usize = 5;

pub const CONTACTS_BYTES: usize = 147456;

// An entry of the list: what its first place is multiplied by, the kind's part, and the first number that no pair has. specs/List.antt has the same.
pub const PLACE_STEP: u32 = 1024;

pub const KIND_STEP: u32 = PLACE_STEP * PLACE_STEP;

pub const NO_NUMBER: u32 = 2 * KIND_STEP;

// A weight of a claim: its digits, and the largest that is answered yes.
pub const WEIGHT_DIGITS: usize = 13;

pub const WEIGHT_LIMIT: u64 = 1099511627776;

// The answers that the program of claims has room for.
pub const CLAIM_ROOM: usize = 2048;

// A pair is asked for by kind: a point and a triangle, or two edges.
#[derive(Clone, Copy, Debug, PartialEq, Eq)]
pub enum Kind {
    PointTriangle,
    EdgeEdge,
}

// A verdict is one of three named outcomes, never a bare number.
#[derive(Clone, Copy, Debug, PartialEq, Eq)]
pub enum Verdict {
    Hit,
    Miss,
    Degenerate,
}

// The four words once a degenerate piece is decided too: touch if weights exist, else apart.
#[derive(Clone, Copy, Debug, PartialEq, Eq)]
pub enum Settled {
    Hit,
    Miss,
    Touch,
    Apart,
}

// The refusals of documents 01 and 02, each with its number: 1 to 17, and 18 of a mesh.
#[derive(Clone, Copy, Debug, PartialEq, Eq)]
pub enum Refusal {
    Shape = 1,
    Coordinate = 2,
    UnknownVertex = 3,
    RepeatedVertex = 4,
    NotThere = 5,
    SharedVertex = 6,
    NoRoom = 7,
    LongText = 8,
    BadLine = 9,
    LateRecord = 10,
    TooMany = 11,
    ShortBuffer = 12,
    BlockLength = 13,
    FilesDiffer = 14,
    BrokenSeam = 15,
    BeyondOldRange = 16,
    StaleBox = 17,
    WrongOrder = 18,
}

// A refusal with what it carries: the line at fault, the entry at fault, or the count or length that is needed where it is NoRoom; else 0.
#[derive(Clone, Copy, Debug, PartialEq, Eq)]
pub struct Refused {
    pub why: Refusal,
    pub carries: usize,
}

// A refusal alone carries nothing.
impl From<Refusal> for Refused {
    ghost from_gives = { λ why refused. refused ≡ carrying why 0 };

    fn from(why: Refusal) -> Refused {
        Refused { why, carries: 0 }
    }
}

// One of the two times of a scene.
#[derive(Clone, Copy, Debug, PartialEq, Eq)]
pub enum Frame {
    Start,
    End,
}

// An edge's ends, the lower vertex first; vertices are ordered by the number of the vertex stood for.
#[derive(Clone, Copy, Debug, PartialEq, Eq)]
pub struct Ends {
    pub low: usize,
    pub high: usize,
}

// A triangle's corners, in rising order of the vertex stood for.
#[derive(Clone, Copy, Debug, PartialEq, Eq)]
pub struct Corners {
    pub low: usize,
    pub middle: usize,
    pub high: usize,
}

// Which pairs of the rows of a mesh: all that are listed, or of these the ones that are not far from each other.
#[derive(Clone, Copy, Debug, PartialEq, Eq)]
pub enum RowPairs {
    Listed,
    Near,
}

// Which of the four words are asked for.
#[derive(Clone, Copy, Debug, PartialEq, Eq)]
pub struct Wanted {
    pub hit: bool,
    pub miss: bool,
    pub touch: bool,
    pub apart: bool,
}

// Of a stretch of rows: how many pairs were kept, how many there are, and how many of these have each word.
#[derive(Clone, Copy, Debug, PartialEq, Eq)]
pub struct KeptRows {
    pub count: usize,
    pub listed: u64,
    pub hits: u64,
    pub misses: u64,
    pub touches: u64,
    pub aparts: u64,
}

// Whether every side of every triangle is an edge, and no edge there twice: the first side that has not the edge lent for it, or the first number of
// the order of the edges behind which their ends do not rise.
#[derive(Clone, Copy, Debug, PartialEq, Eq)]
pub enum EdgesFound {
    Whole,
    Bare(usize),
    Twice(usize),
}

// How many vertices, edges, triangles and seams a scene has.
#[derive(Clone, Copy, Debug, PartialEq, Eq)]
pub struct SceneCounts {
    pub vertices: usize,
    pub edges: usize,
    pub triangles: usize,
    pub seams: usize,
}

// When and where a pair is hit: the piece, k, and three shares, each number in whole 2^20ths. Of a point and a triangle the shares are the
// corners', in rising number. Of two edges each has its share at its higher end, the edge with the lower place first, and the third is 0.
#[derive(Clone, Copy, Debug, PartialEq, Eq)]
pub struct ContactNumbers {
    pub piece: usize,
    pub k: u32,
    pub first: u32,
    pub second: u32,
    pub third: u32,
}

// The four words, the hit with its numbers.
#[derive(Clone, Copy, Debug, PartialEq, Eq)]
pub enum WholeContact {
    Hit(ContactNumbers),
    Miss,
    Touch,
    Apart,
}

// What a contact of a point and a triangle carries: the time handed out, and the share of each corner, in rising number.
#[derive(Clone, Copy, Debug, PartialEq)]
pub struct PointContact {
    pub time: f64,
    pub low: f64,
    pub middle: f64,
    pub high: f64,
}

// What a contact of two edges carries: the time handed out, and each edge's share at its higher-numbered end, the lower place first.
#[derive(Clone, Copy, Debug, PartialEq)]
pub struct EdgeContact {
    pub time: f64,
    pub first: f64,
    pub second: f64,
}

// A hit carries its piece, k itself and beside it the time and the place; the other words carry nothing.
#[derive(Clone, Copy, Debug, PartialEq)]
pub enum Contact {
    PointHit(usize, u32, PointContact),
    EdgeHit(usize, u32, EdgeContact),
    Miss,
    Touch,
    Apart,
}

// A decimal, in hundredths.
#[derive(Clone, Copy, Debug, PartialEq, Eq)]
pub struct Hundredths {
    pub minus: bool,
    pub size: u64,
}

// What a line says: nothing, a vertex, a face by the numbers of its vertices counted from 1; or it is none of these.
#[derive(Clone, Copy, Debug, PartialEq, Eq)]
pub enum ObjLine {
    Skipped,
    Vertex(Hundredths, Hundredths, Hundredths),
    Face(u64, u64, u64),
    Bad,
}

// Of two OBJ files: the start or the end.
#[derive(Clone, Copy, Debug, PartialEq, Eq)]
pub enum WhichFile {
    Start,
    End,
}

// Why two files are not imported: for 8 and for a fault of a line also the file, and the line (0 where it has none).
#[derive(Clone, Copy, Debug, PartialEq, Eq)]
pub enum ImportRefusal {
    Of(Refusal),
    In(WhichFile, Refused),
}

// The entries of a log.
pub const LOG_ROOM: usize = 64;

// A hit: its step, counted from 1, its kind and its two places.
#[derive(Clone, Copy, Debug, PartialEq, Eq)]
pub struct StepHit {
    pub step: usize,
    pub kind: Kind,
    pub first: usize,
    pub second: usize,
}

// The first `held` of the hits are entries; `later` counts the hits that came when the log was full.
#[derive(Clone, Copy, Debug, PartialEq, Eq)]
pub struct Log {
    pub hits: [StepHit; LOG_ROOM],
    pub held: usize,
    pub later: u64,
}

// What is told of a series: its log, the totals over all steps, and the first step with a hit, counted from 1, or 0 where there is none.
#[derive(Clone, Copy, Debug, PartialEq, Eq)]
pub struct SeriesTold {
    pub log: Log,
    pub listed: u64,
    pub hits: u64,
    pub misses: u64,
    pub touches: u64,
    pub aparts: u64,
    pub first: usize,
}

// After a refusal nothing is told: the log is empty and every number 0.
#[derive(Clone, Copy, Debug, PartialEq, Eq)]
pub struct SeriesAnswer {
    pub outcome: Result<SceneCounts, Refused>,
    pub told: SeriesTold,
}

// The answer for a series, and how many pairs its last step lists: 0 after a refusal.
#[derive(Clone, Copy, Debug, PartialEq, Eq)]
pub struct SeriesListed {
    pub answer: SeriesAnswer,
    pub count: usize,
}
