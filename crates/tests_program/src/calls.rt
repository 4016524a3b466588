// Each public call of the design, under the crate that has it or hands it on, with its arguments in their order. What is called
// here is proved to be there and to ask for no more than these conditions; what each call does is tested beside its part.

mod fields;
mod model;
mod parts;
mod programs;
mod stores;
mod versions;
