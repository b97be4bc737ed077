// Tests of the desk that threads share: that no order is dropped, and what each order answers.
mod crowds;
mod kinds;
