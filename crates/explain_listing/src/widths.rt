//! How wide columns are.

use plant_config::Plant;

/// As wide as the number of a console can be.
const LEAST: usize = 9;

/// As wide as the name of an area can be. A longer name of a program isn't aligned.
const MOST: usize = 32;

/// The length of the longest name of a program, at least so many bytes.
fn longest_program(plant: &Plant, least: usize) -> usize {
    let mut width = least;
    for program in 0..plant.programs() {
        width = width.max(plant.program(program).len());
    }
    width
}

/// The length of the longest name of an area, at least so many bytes.
fn longest_area(plant: &Plant, least: usize) -> usize {
    let mut width = least;
    for area in 0..plant.areas() {
        width = width.max(plant.area(area).len());
    }
    width
}

/// How wide the column is in which programs, areas and consoles stand.
pub fn first_width(plant: &Plant) -> usize {
    longest_area(plant, longest_program(plant, LEAST)).min(MOST)
}
