// What correction bytes and their header are (EN 13757-4:2019, 12.8; document 02, 11/14). There is no function here:
// what writes and reads them stands in `correction`.

#![tactic(auto)]
