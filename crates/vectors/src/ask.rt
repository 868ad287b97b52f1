// What a reading is asked for: the first eight numbers of a record.
use crate::walk::Numbers;
use header::Limits;

#[derive(Clone, Copy)]
pub struct Ask {
    pub page: usize,
    pub limits: Limits,
    pub units: usize,
}

impl Ask {
    pub fn of(numbers: Numbers) -> Self {
        Ask {
            page: numbers.at(0),
            limits: Limits {
                max_input: numbers.at(1),
                max_output: numbers.at(2),
                max_dimension: numbers.at(3),
                max_directories: numbers.at(4),
                max_tags: numbers.at(5),
                max_segments: numbers.at(6),
            },
            units: numbers.at(7),
        }
    }
}
