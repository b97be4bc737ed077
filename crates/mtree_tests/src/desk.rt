// Tests of what a desk publishes, of routes, and of accesses over a desk whose regions have their words in a pool.
mod calls;
mod changes;
mod desks;
mod drawn_accesses;
mod drawn_maps;
mod drawn_routes;
mod hands;
mod machines;
mod memory;
mod plain_accesses;
mod plain_devices;
mod plain_trails;
mod plain_words;
mod routes;
mod steps;
mod touched;
mod trials;
