// Landing: where the cells of one row of a saved field come to lie in the projection.
pub mod clear;
pub mod land;
pub mod run;
pub mod source;
