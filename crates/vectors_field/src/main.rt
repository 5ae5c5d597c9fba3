// Runs the functions of the wide fields and writes what they answer, a number in hexadecimal a line: products, inverses and lifts of bytes, Lagrange's
// values at x, and dot products with them. The file stdout is written by vectors/field.py.
#![tactic(auto)]

ghost use Rattle.std.specs.Prelude.{◌≡◌, ◌<◌, ◌^◌, length};
ghost use Rattle.lifts.specs.Fields.{bits_of};

use lifts::Field;
use std::array;

fn print(rt: HostRuntime, value: u64) {
    let _ = println!(rt; "{value:x}");
}

fn product(rt: HostRuntime, field: Field, a: u64, b: u64) {
    print(rt, gf::mul(field.bits(), field.low(), a, b));
}

// A byte's inverse and its lift.
fn byte(rt: HostRuntime, b: u8) {
    print(rt, inverses::inverse(b) as u64);
    print(rt, lifts::lift32(b) as u64);
}

fn print_all(rt: HostRuntime, values: &[u64]) {
    for value in values {
        print(rt, *value);
    }
}

// For 21 points and for 41.
fn values(rt: HostRuntime, field: Field, x: u64)
    requires { x < 2 ^ bits_of field }
{
    let mut few = [0u64; 21];
    lagrange_points::values(field, x, &mut few);
    print_all(rt, &few);
    let mut many = [0u64; 41];
    lagrange_points::values(field, x, &mut many);
    print_all(rt, &many);
}

// Bytes 5, 78, 151, .. modulo 256.
fn bytes() -> [u8; 200] {
    array::from_fn(|i| ((i * 73 + 5) % 256) as u8)
}

fn print_dots(rt: HostRuntime, tables: &[u64], s: &[u8])
    requires { (length tables.now ≡ 672) × (length s.now ≡ 200) }
{
    for j in 0..10 {
        print(rt, dots::dot_tables(tables, s, 20, 10, j));
    }
}

// For j = 0 to 9, the values at x of the polynomials through the lifts of bytes j, j + 10, .. j + 190 at the points 0 to 19, and 0 at 20: by
// tables.
fn dots(rt: HostRuntime, x: u64)
    requires { x < 2 ^ 32 }
{
    let mut coefficients = [0u64; 21];
    lagrange_points::values(Field::Bits32, x, &mut coefficients);
    let p = Field::Bits32.powers();
    let mut tables = [0u64; 672];
    tables::tables(32, 0x8d, &p, &coefficients, &mut tables);
    let s = bytes();
    print_dots(rt, &tables, &s);
}

// The dot product of 41 values at x and at 89abcdef.
fn dot(rt: HostRuntime, x: u64)
    requires { x < 2 ^ 32 }
{
    let mut coefficients = [0u64; 41];
    lagrange_points::values(Field::Bits32, x, &mut coefficients);
    let mut points = [0u64; 41];
    lagrange_points::values(Field::Bits32, 0x89abcdef, &mut points);
    print(rt, dots::dot(32, 0x8d, &coefficients, &points));
}

fn main(rt: HostRuntime) {
    product(rt, Field::Bits32, 0x10000, 0x10000);
    product(rt, Field::Bits32, 0x80000000, 2);
    product(rt, Field::Bits32, 0x12345678, 0x9abcdef0);
    product(rt, Field::Bits32, 0xffffffff, 0xffffffff);
    product(rt, Field::Bits32, 0, 0xffffffff);
    product(rt, Field::Bits48, 0x1000000, 0x1000000);
    product(rt, Field::Bits48, 0x800000000000, 2);
    product(rt, Field::Bits48, 0x123456789abc, 0xfedcba987654);
    product(rt, Field::Bits48, 0xffffffffffff, 0xffffffffffff);
    byte(rt, 0);
    byte(rt, 1);
    byte(rt, 2);
    byte(rt, 0x53);
    byte(rt, 0x80);
    byte(rt, 0xff);
    values(rt, Field::Bits32, 0);
    values(rt, Field::Bits32, 20);
    values(rt, Field::Bits32, 33);
    values(rt, Field::Bits32, 40);
    values(rt, Field::Bits32, 41);
    values(rt, Field::Bits32, 0x12345678);
    values(rt, Field::Bits48, 20);
    values(rt, Field::Bits48, 0x123456789abc);
    dots(rt, 20);
    dots(rt, 0x12345678);
    dot(rt, 7);
    dot(rt, 0xfedcba98);
}
