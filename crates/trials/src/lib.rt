#![tactic(auto)]

// Cases that are run: bounds of the registers and of a card's room.

#[cfg(test)]
mod tests {
    use board::{Board, Bus, power_on};
    use fault::Fault;
    use rack::{Rack, WeighingCard};
    use std::test::Fail;

    fn number(fault: Fault) -> u8 {
        u8::from(fault.refusal)
    }

    fn write(bus: &Bus, board: &mut Board, port: u16, byte: u8) -> Result<(), u8> {
        bus.write_port(board, port, byte).map_err(number)
    }

    #[test]
    fn level_0e_is_taken_and_0f_refused(rt: HostRuntime) {
        let (mut board, bus) = power_on();
        assert_eq!(rt; write(&bus, &mut board, 0x18, 0x80), Ok(()));
        assert_eq!(rt; write(&bus, &mut board, 0x1A, 0x0E), Ok(()));
        assert_eq!(rt; write(&bus, &mut board, 0x1A, 0x0F), Err(2));
        let channels = board.channels();
        assert_eq!(rt; channels[0].level, 14);
        assert_eq!(rt; write(&bus, &mut board, 0x18, 0x81), Err(2));
    }

    #[test]
    fn arrival_513_waits_for_a_give(rt: HostRuntime) -> Result<(), Fail> {
        let (_board, bus) = power_on();
        let mut card = WeighingCard::new(rt.alloc(), 5)?;
        for unit in 0u16..512 {
            assert_eq!(rt; bus.arrive(&mut card, 5, unit), Ok(()));
        }
        assert_eq!(rt; bus.arrive(&mut card, 5, 512).map_err(number), Err(9));
        assert_eq!(rt; bus.arrive(&mut card, 15, 512).map_err(number), Err(10));
        assert!(rt; card.give(5).is_ok());
        assert_eq!(rt; bus.arrive(&mut card, 5, 512), Ok(()));
        assert_eq!(rt; card.summary(5).waiting, 512);
        Ok(())
    }

    #[test]
    fn ports_go_one_way(rt: HostRuntime) {
        let (mut board, bus) = power_on();
        for port in [0x18u16, 0x43, 0x47, 0x93] {
            assert_eq!(rt; bus.read_port(&mut board, port).map_err(number), Err(1));
        }
        assert_eq!(rt; write(&bus, &mut board, 0x92, 0), Err(1));
        assert_eq!(rt; write(&bus, &mut board, 0x44, 0), Err(3));
        assert_eq!(rt; write(&bus, &mut board, 0x43, 0x32), Err(2));
    }
}

#[cfg(test)]
mod tables;
