// The calls of documents 01 and 02 for C, C++ and Rust, on numbers and lent bytes. A slice is two arguments there: the bytes, and how many they are.
#![tactic(auto)]

ghost use Rattle.std.specs.Prelude.{◌≡◌, ◌/◌, length};
ghost use Rattle.model.specs.Store.{measures_at, decode, file_in};
ghost use Rattle.model.specs.Route.{route_of};
ghost use Rattle.model.specs.Calls.{plan_number, plan_measures, read_number, read_into, measures_of, build_number, build_into, check_number, change_number, change_into, route_number, route_flat, windows_of, windows_number, windows_flat, write_number, write_into};
ghost use Rattle.hall_c.specs.Answers.{version, dimensions, of_measures, of_route, of_windows, of_file, flat_measures, flat_route, flat_windows, flat_file};

use hall::build::build;
use hall::change::change;
use hall::check::check_store;
use hall::windows::windows;
use hall_file::read::read_file;
use hall_file::write::write_file;
use hall_plan::plan;
use hall_route::route;
use model::{Dimensions, Measures, Refusal, Route, number_of};

// What plan and read file answer: its number, and the measures, which are 0 where it is a refusal.
#[repr(C)]
#[derive(Drop)]
pub struct MeasuresAnswer {
    pub number: u8,
    pub columns: u8,
    pub rows: u8,
    pub scale: u8,
}

// What route answers: its number, and steps, leg and run, which are 0 where there is no route.
#[repr(C)]
#[derive(Drop)]
pub struct RouteAnswer {
    pub number: u8,
    pub steps: u32,
    pub leg: u32,
    pub run: u32,
}

// What windows answers: its number, and how many there are, which is 0 where it is a refusal.
#[repr(C)]
#[derive(Drop)]
pub struct WindowsAnswer {
    pub number: u8,
    pub count: u8,
}

// What write file answers: its number, and how many bytes the file has, which is 0 where it is a refusal.
#[repr(C)]
#[derive(Drop)]
pub struct FileAnswer {
    pub number: u8,
    pub length: u32,
}

impl From<Result<Measures, Refusal>> for MeasuresAnswer {
    ghost from_gives = { λ answer r. r ≡ of_measures answer };

    fn from(answer: Result<Measures, Refusal>) -> MeasuresAnswer {
        match answer {
            Ok(m) => MeasuresAnswer {
                number: 0,
                columns: m.columns,
                rows: m.rows,
                scale: m.scale,
            },
            Err(refusal) => MeasuresAnswer {
                number: refusal.number(),
                columns: 0,
                rows: 0,
                scale: 0,
            },
        }
    }
}

impl From<Result<Option<Route>, Refusal>> for RouteAnswer {
    ghost from_gives = { λ answer r. r ≡ of_route answer };

    fn from(answer: Result<Option<Route>, Refusal>) -> RouteAnswer {
        match answer {
            Ok(Some(route)) => RouteAnswer {
                number: 0,
                steps: route.steps,
                leg: route.leg,
                run: route.run,
            },
            Ok(None) => RouteAnswer {
                number: 0,
                steps: 0,
                leg: 0,
                run: 0,
            },
            Err(refusal) => RouteAnswer {
                number: refusal.number(),
                steps: 0,
                leg: 0,
                run: 0,
            },
        }
    }
}

impl From<Result<u8, Refusal>> for WindowsAnswer {
    ghost from_gives = { λ answer r. r ≡ of_windows answer };

    fn from(answer: Result<u8, Refusal>) -> WindowsAnswer {
        match answer {
            Ok(count) => WindowsAnswer { number: 0, count },
            Err(refusal) => WindowsAnswer {
                number: refusal.number(),
                count: 0,
            },
        }
    }
}

impl From<Result<u32, Refusal>> for FileAnswer {
    ghost from_gives = { λ answer r. r ≡ of_file answer };

    fn from(answer: Result<u32, Refusal>) -> FileAnswer {
        match answer {
            Ok(length) => FileAnswer { number: 0, length },
            Err(refusal) => FileAnswer {
                number: refusal.number(),
                length: 0,
            },
        }
    }
}

// The version of include/hall.h that these calls are declared in.
#[unsafe(no_mangle)]
pub extern "C" fn hall_version() -> u32
    ensures { result ≡ version }
{
    3
}

// A hall's columns, rows and scale from its sizes, unit and radius.
#[unsafe(no_mangle)]
pub extern "C" fn hall_plan(size_x: f32, size_y: f32, unit: f32, radius: f32) -> MeasuresAnswer
    ensures { let d = dimensions size_x size_y unit radius in result ≡ flat_measures (plan_number d) (plan_measures d) }
{
    let d = Dimensions {
        size_x,
        size_y,
        unit,
        radius,
    };
    plan(d).into()
}

// Reads a hall file into a lent list of base costs.
#[unsafe(no_mangle)]
pub extern "C" fn hall_read_file(file: &[u8], base: &mut [u8]) -> MeasuresAnswer
    ensures answer { result ≡ flat_measures (read_number file.now (length base.old)) (measures_at file.now) }
    ensures filled { base.new ≡ read_into file.now base.old }
{
    read_file(file, base).into()
}

// Builds a hall in a lent store.
#[unsafe(no_mangle)]
pub extern "C" fn hall_build(columns: u8, rows: u8, scale: u8, base: &[u8], store: &mut [u8]) -> u8
    ensures answer { result ≡ build_number (measures_of columns rows scale) base.now store.old }
    ensures built { store.new ≡ build_into (measures_of columns rows scale) base.now store.old }
{
    number_of(build(columns, rows, scale, base, store))
}

// The number of the first refusal that applies to a store, or 0.
#[unsafe(no_mangle)]
pub extern "C" fn hall_check_store(store: &[u8]) -> u8
    ensures { result ≡ check_number store.now }
{
    number_of(check_store(store))
}

// Changes the cost of a cell of the hall in a lent store.
#[unsafe(no_mangle)]
pub extern "C" fn hall_change(store: &mut [u8], floor_number: usize, cost: u8) -> u8
    ensures answer { result ≡ change_number store.old floor_number cost }
    ensures changed { store.new ≡ change_into store.old floor_number cost }
{
    number_of(change(store, floor_number, cost))
}

// Finds the route from one cell to another, its steps six bytes each: column, row, goal, side, first and last cell.
#[unsafe(no_mangle)]
pub extern "C" fn hall_route(
    store: &[u8],
    source: usize,
    goal: usize,
    list: &mut [u8],
) -> RouteAnswer
    ensures answer { result ≡ flat_route (route_number store.now source goal (length list.old / 6)) (route_of (decode store.now) source goal) }
    ensures steps { list.new ≡ route_flat store.now source goal list.old }
{
    route(store, source, goal, list).into()
}

// Lists the windows of a sector, N, E, S, W, three bytes each: first cell, last cell and side.
#[unsafe(no_mangle)]
pub extern "C" fn hall_windows(store: &[u8], sector: usize, list: &mut [u8]) -> WindowsAnswer
    ensures answer { result ≡ flat_windows (windows_number store.now sector (length list.old / 3)) (length (windows_of (decode store.now) sector)) }
    ensures listed { list.new ≡ windows_flat store.now sector list.old }
{
    windows(store, sector, list).into()
}

// Writes the floor of a store as a hall file to the front of a lent output.
#[unsafe(no_mangle)]
pub extern "C" fn hall_write_file(store: &[u8], output: &mut [u8]) -> FileAnswer
    ensures answer { result ≡ flat_file (write_number store.now (length output.old)) (length (file_in store.now)) }
    ensures written { output.new ≡ write_into store.now output.old }
{
    write_file(store, output).into()
}
