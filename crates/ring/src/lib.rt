// Polynomials modulo X^n + 1, and their products.
#![tactic(auto)]

pub mod poly;
