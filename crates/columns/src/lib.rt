//! The public examples of the double parity, through the calls that its users make.
#![tactic(auto)]

#[cfg(test)]
mod tests {
    use code::Code;
    use parity::P6;
    use std::array;
    use std::test::Fail;
    use whiten::W6;

    struct Example {
        // a byte of each row
        column: [u8; 4],
        // the bytes of its parities, which have the numbers 4 and 5
        parities: [u8; 2],
    }

    static EXAMPLES: [Example; 3] = [
        Example {
            column: [1, 2, 3, 4],
            parities: [4, 41],
        },
        Example {
            column: [0, 128, 0, 0],
            parities: [128, 29],
        },
        Example {
            column: [0, 0, 0, 128],
            parities: [128, 116],
        },
    ];

    // The record that has the column at each of its six places.
    fn repeated(column: [u8; 4]) -> [u8; 24] {
        array::from_fn(|t| column[t / 6])
    }

    #[test]
    fn parities(rt: HostRuntime) -> Result<(), Fail> {
        for Example { column, parities } in &EXAMPLES {
            for (number, parity) in (4..).zip(parities) {
                let mut piece = [0; 6];
                P6::make(&repeated(*column), number, &mut piece)?;
                assert_eq!(rt; piece, [*parity; 6]);
            }
        }
        let mut white = [0; 6];
        W6::make(&[0; 24], 5, &mut white)?;
        assert_eq!(rt; white[1], 201);
        Ok(())
    }
}
