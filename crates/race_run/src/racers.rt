// What a race goes by from line to line.

use race_inside::Record;
use race_lines::KnownNames;
use vcpu_pass::Vcpu;

/// A race under way: the record of its desk, its virtual CPUs, and what is known of names.
pub struct Racer<'c> {
    pub desk: Record,
    pub cpus: Vec<Vcpu<'c>>,
    pub known: KnownNames,
}
