// The written form of a record.

ghost use Rattle.writing.specs.FormParts.{PartPut, form_head, form_matrix};
ghost use Rattle.writing.specs.FormPut.{FormPut};
ghost use Rattle.std.specs.Prelude.{length, ◌≡◌};

use super::characters::{put_assumptions, put_labels};
use super::formats::{put_dimensions, put_format};
use super::rows::put_rows;
use super::signs::{Marks, marks_of, sign_table};
use emit::put_all;
use judging::Shape;

// Puts the commands in front of the matrix, by the signs of a missing cell and of a gap.
fn put_head(source: &[u8], shape: Shape, marks: Marks, buffer: &mut [u8], n: usize) -> usize
    ensures { PartPut form_head source.now shape marks.missing marks.gap buffer.old n buffer.new result }
{
    let begun = put_all(buffer, n, b"#NEXUS\nBEGIN DATA;\n");
    let counts = put_dimensions(buffer, begun, shape.taxa, shape.characters);
    let format = put_format(source, shape, marks, buffer, counts);
    put_labels(source, shape, buffer, format)
}

// Puts the matrix, by the signs of a missing cell and of a gap.
fn put_matrix(source: &[u8], shape: Shape, marks: Marks, buffer: &mut [u8], n: usize) -> usize
    ensures { PartPut form_matrix source.now shape marks.missing marks.gap buffer.old n buffer.new result }
{
    let signs = sign_table(source, shape, marks);
    let begun = put_all(buffer, n, b"MATRIX\n");
    let rows = put_rows(source, shape.rows, shape.taxa, &signs, buffer, begun);
    put_all(buffer, rows, b";\nEND;\n")
}

// Puts the written form of the record that has a shape.
pub fn put_form(source: &[u8], shape: Shape, buffer: &mut [u8], n: usize) -> usize
    ensures put { FormPut source.now shape buffer.old n buffer.new result }
    ensures kept { length buffer.new ≡ length buffer.old }
{
    let marks = marks_of(source, shape);
    let head = put_head(source, shape, marks, buffer, n);
    let matrix = put_matrix(source, shape, marks, buffer, head);
    put_assumptions(source, shape, buffer, matrix)
}
