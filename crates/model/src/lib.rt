// The structs and enums of the calls. What they mean is defined in specs/, file by file in the order of document 01.

#![tactic(auto)]

ghost use Rattle.std.specs.Prelude.{◌≡◌, [], ◌∷◌};
ghost use Rattle.model.specs.Numbers.{number, number_of};
ghost use Rattle.model.specs.Steps.{step_bytes};

// Item 1: a cell of a sector, column and row 0 to 9.
#[derive(Clone, Copy)]
pub struct FieldCell {
    pub column: u8,
    pub row: u8,
}

// Item 3: a sector by column and row.
#[derive(Clone, Copy)]
pub struct SectorID {
    pub column: u8,
    pub row: u8,
}

// What a hall is built by: columns and rows of sectors, and the trolley's scale.
#[derive(Clone, Copy)]
pub struct Measures {
    pub columns: u8,
    pub rows: u8,
    pub scale: u8,
}

// A hall's measures in bytes, as they open a store and a file.
impl From<Measures> for [u8; 3] {
    ghost from_gives = { λ m bytes. bytes ≡ m.columns ∷ m.rows ∷ m.scale ∷ [] };

    fn from(m: Measures) -> [u8; 3] {
        [m.columns, m.rows, m.scale]
    }
}

impl From<[u8; 3]> for Measures {
    ghost from_gives = { λ bytes m. m.columns ∷ m.rows ∷ m.scale ∷ [] ≡ bytes };

    fn from([columns, rows, scale]: [u8; 3]) -> Measures {
        Measures {
            columns,
            rows,
            scale,
        }
    }
}

// Item 4: a step has a sector, a goal index and a window or none. Side 0 to 3 is N, E, S, W; side 4 says that there is no window, and then first and last are 0.
#[derive(Clone, Copy)]
pub struct RouteStep {
    pub column: u8,
    pub row: u8,
    pub goal: u8,
    pub side: u8,
    pub first: u8,
    pub last: u8,
}

// A step's six bytes, in the order of its fields.
impl From<RouteStep> for [u8; 6] {
    ghost from_gives = { λ step bytes. bytes ≡ step_bytes step };

    fn from(step: RouteStep) -> [u8; 6] {
        [
            step.column,
            step.row,
            step.goal,
            step.side,
            step.first,
            step.last,
        ]
    }
}

impl From<[u8; 6]> for RouteStep {
    ghost from_gives = { λ bytes step. step_bytes step ≡ bytes };

    fn from([column, row, goal, side, first, last]: [u8; 6]) -> RouteStep {
        RouteStep {
            column,
            row,
            goal,
            side,
            first,
            last,
        }
    }
}

// Item 5: the eight directions of a walk.
#[derive(Clone, Copy)]
pub enum CompassDir {
    North,
    East,
    South,
    West,
    NorthEast,
    SouthEast,
    SouthWest,
    NorthWest,
}

// The four sides of a sector, or of a cell.
#[derive(Clone, Copy)]
pub enum Side {
    North,
    East,
    South,
    West,
}

// Item 5: where steps from a cell land: the index in the sector reached, and how far that sector is on each axis, plus one (0 back, 1 the same, 2 on).
#[derive(Clone, Copy)]
pub struct Landing {
    pub index: u8,
    pub east: u8,
    pub south: u8,
}

// Item 6: sizes, unit and radius.
#[derive(Clone, Copy)]
pub struct Dimensions {
    pub size_x: f32,
    pub size_y: f32,
    pub unit: f32,
    pub radius: f32,
}

// Item 8: a window of a side, by the indices of its first and last cell; side 0 to 3 is N, E, S, W.
#[derive(Clone, Copy)]
pub struct PortalWindow {
    pub first: u8,
    pub last: u8,
    pub side: u8,
}

// A window's three bytes, in the order of its fields.
impl From<PortalWindow> for [u8; 3] {
    ghost from_gives = { λ window bytes. bytes ≡ window.«first» ∷ window.last ∷ window.side ∷ [] };

    fn from(window: PortalWindow) -> [u8; 3] {
        [window.first, window.last, window.side]
    }
}

// Item 8: the ten border cells of a side, and those of the side that it faces.
#[derive(Clone, Copy)]
pub struct BorderCells {
    pub own: [FieldCell; 10],
    pub facing: [FieldCell; 10],
}

// Why a call is refused, by 01's and 02's numbers.
#[derive(Clone, Copy, Debug, PartialEq, Eq)]
pub enum Refusal {
    NotFinite = 1,
    Size = 2,
    Radius = 3,
    Unit = 4,
    BelowOneSector = 5,
    RadiusOfSector = 6,
    ScaleOfTen = 7,
    ScaleOfZero = 8,
    AboveTenSectors = 9,
    FileUnderFive = 10,
    Sectors = 11,
    Scale = 12,
    EntryCount = 13,
    FileLength = 14,
    EntryNumber = 15,
    ListLength = 16,
    BaseLength = 17,
    StoreLength = 18,
    FourthByte = 19,
    Mark = 20,
    FloorNumber = 21,
    MoreWindows = 22,
    Source = 23,
    Goal = 24,
    StepRoom = 25,
    Sector = 26,
    WindowRoom = 27,
    EntryAgain = 28,
    FileRoom = 29,
}

impl Refusal {
    // The number, which is what C is answered and what is printed.
    pub fn number(self) -> u8
        ensures { result ≡ number self }
    {
        self as u8
    }
}

// The number of an answer, which is 0 where it is not refused, without what it gives.
pub fn number_of<T: Drop>(answer: Result<T, Refusal>) -> u8
    ensures { result ≡ number_of answer }
{
    match answer {
        Ok(_) => 0,
        Err(refusal) => refusal.number(),
    }
}

// A route that was found: the count of its steps, leg and run.
#[derive(Clone, Copy, Debug, PartialEq, Eq)]
pub struct Route {
    pub steps: u32,
    pub leg: u32,
    pub run: u32,
}
